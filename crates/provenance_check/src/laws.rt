//! Laws.
#![tactic(auto)]

ghost use Rattle.provenance_check.specs.Entries.{EachPasses, FirstFails, NoneFails};
ghost use Rattle.provenance_check.specs.Judged.{NoneFailsJudges};

/// A law: where no rule of a node fails, its instruction is read from code; each of its accesses is allowed, and a store
/// keeps what is there; it goes on at a node that NEXT names, or out of the function; and what is known there serves
/// that node.
pub fn none_fails_judges()
    ensures { NoneFailsJudges }
{}

/// A law: the first number at which a test fails is the one that fails behind those that pass, and none is where each
/// passes.
pub fn first_is_first()
    ensures fails { FirstFails }
    ensures none { NoneFails }
    ensures each { EachPasses }
{}
