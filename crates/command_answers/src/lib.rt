//! What every command answers, prints and leaves, whatever it is: definitions and lemmas alone.
#![tactic(auto)]
