//! Laws between the calls of a scan and the definitions of input: what the next token, the next
//! quoted text and the next header line make of the body in which a scan stands.
//!
//! The relations that contracts above cite stand in `specs/`, their laws in `proofs/`.
