// Scripts, texts and lent buffers of any bytes, in arrays: nothing fails but printing, and nothing takes the heap.
pub mod lent;
pub mod script;
pub mod texts;
