//! The lines that refute a goal which no document meets, and the certificate that they make. Definitions alone.
#![tactic(auto)]
