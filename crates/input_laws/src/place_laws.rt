//! Laws of elements that stand at one place: which are kept, and the keys of places.
