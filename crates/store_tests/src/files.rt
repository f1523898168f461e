mod counts;
mod descriptors;
mod limits;
mod operations;
mod steps;
