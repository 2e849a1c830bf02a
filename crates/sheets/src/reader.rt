// The reader: bytes, words, numbers, expressions, lines and the form of a whole sheet.
pub mod bytes;
pub mod expr;
pub mod form;
pub mod head;
pub mod lines;
pub mod num;
pub(crate) mod words;
