//! What a checker says of a certificate that every document which meets one position meets another: accepted, or the
//! first line that breaks a rule with that rule. Definitions alone; they share tables, goals, plans and cells with the
//! search, and know nothing of how it finds a certificate.
#![tactic(auto)]
