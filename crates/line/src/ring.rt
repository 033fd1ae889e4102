// A line of 64 readings and 64 sends, each number in an element of an array.
use crate::numbers::Numbers;
use crate::queue_line::QueueLine;

pub type Ring = QueueLine<Numbers>;
