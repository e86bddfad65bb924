//! Definitions and laws of binary BCH codes: polynomials over two elements, fields of 2^m elements,
//! generators, words and the nearest code word.
#![tactic(auto)]
