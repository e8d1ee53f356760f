mod answers;
mod orders;
