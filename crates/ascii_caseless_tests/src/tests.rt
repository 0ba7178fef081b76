//! Texts that are compared, hashed, shown and lent, and a store of headers.
mod compared;
mod headers;
mod lent;
mod owned;
