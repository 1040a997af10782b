mod counter;
mod index;
mod lines;
mod turns;
