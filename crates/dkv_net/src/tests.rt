// What goes through the real things.
mod files;
mod random;
mod streams;
