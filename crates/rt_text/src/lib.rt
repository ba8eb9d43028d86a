//! Assembly text: the lines of a source, their statements, and the first fault.
#![tactic(auto)]

mod fault;
mod fence_set;
mod forms;
mod laws;
mod line;
mod meaning;
mod names;
mod numbered;
mod operand_kinds;
mod operands;
mod operations;
mod parsing;
mod refused_words;

pub use fault::{ParseFault, TextFault, TextKind};
pub use fence_set::FenceSet;
pub use forms::statement_names;
pub use laws::{
    lines_are_those_of_the_grammar, operands_fit_their_shapes, pieces_are_slices_that_rise,
    refused_words_are_in_faulty_lines, strings_mean_what_they_spell,
    the_first_fault_of_a_text_is_named,
};
pub use line::{Line, Statement};
pub use meaning::{Directive, Meaning, Numbers, Operation, StringBytes, Target, Targets, Transfer};
pub use numbered::numbered_line;
pub use operand_kinds::{OperandKind, Shape, shapes_by};
pub use operands::{Memory, Operand};
pub use operations::{
    BranchOp, ImmediateOp, JumpOp, JumpRegisterOp, LoadOp, PlainOp, RegisterOp, ShiftOp, StoreOp,
    TextOp, UnaryOp, UpperOp, ZeroBranchOp,
};
pub use parsing::{LineReader, parse, text_faults};
pub use refused_words::{Flaw, RefusedWord, refused_word};
