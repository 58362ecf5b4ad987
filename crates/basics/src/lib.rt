// What every definition above stands on: choice by a test, tests and lists over a range of numbers, sums, digits.
// There is no code here: `specs/` has the definitions, `proofs/` their laws.
#![tactic(auto)]
