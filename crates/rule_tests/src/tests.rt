mod blocks;
mod messages;
mod rules;
mod samples;
mod txs;
