// Tests over tables: which refusal comes first, and what it leaves. Expected values are worked out by hand from
// docs/REFUSALS.md and docs/FORMATS.md.
#![tactic(auto)]

#[cfg(test)]
mod admission;
#[cfg(test)]
mod files;
