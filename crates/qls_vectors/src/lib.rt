//! Whole stores on which the definitions are computed: what each means, or the first rule that it breaks. Definitions and lemmas alone.
#![tactic(auto)]
