mod beside;
mod by_hand;
mod deletions;
mod many;
mod pages;
mod plain;
mod small;
