mod deletions;
mod outputs;
mod places;
mod roots;
mod targets;
mod undone;
mod watched;
