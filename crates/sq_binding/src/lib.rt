//! The definitions of binding and of what schemas declare (ISO/IEC 9075:1992, clauses 6 to 8, 10.3, 11 and 13).
//!
//! Each part of a module is bound to a tree by place, with its findings, or to its first fault in the order in which the text is
//! read. Value expressions begin in `Expression`, search conditions and query specifications in `Condition`, and query expressions
//! in `QueryExpression`. Cursors are in `Cursor`, statements in `Statement`, procedures in `Procedure`, views and conditions of
//! CHECK in `View`. Schemas declare a catalog of base tables, views and privileges, or their first refusal, with the text, the
//! schema definition and the element. This begins in `Declaring`. CREATE TABLE is in `Table`, CREATE VIEW in `CreateView`, GRANT in
//! `Grant`. `Bound` and the files beside it say which facts about a bound text the program relies on. It is the text with its names
//! placed, it is well formed by place, and the tables that it names exist.
//!
//! The definitions are in `specs/`, their laws in `proofs/`. Only the definitions of `sq_meaning` have to be believed; the laws say
//! that the definitions here compute the same.
#![tactic(auto)]
