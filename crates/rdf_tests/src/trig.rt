// Readers of Turtle and TriG.

mod sizes;
mod steps;
