//! The core compared with the plain list program, and its calls beside `run`.
mod asking;
mod calls;
mod drawn;
mod mixed;
mod moments;
mod parts;
mod plain_list;
mod rows;
mod telling;
mod watches;
mod writes;
