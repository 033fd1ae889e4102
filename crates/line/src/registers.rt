// A line of 60 readings and 60 sends, each number in two registers of 16 bits, as MODBUS has them.
use crate::bank::Bank;
use crate::queue_line::QueueLine;

pub type RegisterLine = QueueLine<Bank>;
