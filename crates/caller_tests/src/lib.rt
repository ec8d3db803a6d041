// Callers as users write them: a keeper, a verdict or a directory held in another type. Whether the check covers such a
// caller depends on the private parts of the public types, so each is proved here.
#![tactic(auto)]

#[cfg(test)]
mod holding;
