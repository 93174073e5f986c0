//! The devices of the machine: a console, a disk with direct memory access, and the interrupt lines of the script.
//!
//! - `console_port`: the console: the bytes that wait at it, and those that it has printed.
//! - `transfers`: what a command of the disk stands for, and its beats.
//! - `disk_bytes`: the bytes of the disk.
//! - `disk_controller`: the disk with its registers, and the command in progress.
//! - `interrupt_lines`: the lines whose levels a script gives.
//! - `register_file`: the registers, by their offsets.
//! - `device_set`: all devices together.
//! - `recorded`: the devices with the inputs that are recorded for them.
//!
//! The definitions stand in specs/, of which RegisterTable.antt has the table of the registers. All memory is taken when the
//! devices are made.
#![tactic(auto)]

mod console_port;
mod device_set;
mod disk_bytes;
mod disk_controller;
mod interrupt_lines;
mod recorded;
mod register_file;
mod transfers;

pub use device_set::Devices;
pub use recorded::RecordedDevices;
pub use register_file::Wrote;
pub use transfers::Beat;
