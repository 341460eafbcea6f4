mod files;
mod sockets;
mod streams;
