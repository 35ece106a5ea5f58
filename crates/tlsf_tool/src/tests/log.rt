mod adapters;
mod addresses;
mod in_memory;
mod line_rows;
mod longest_line;
mod streams;
