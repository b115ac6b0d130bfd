//! Documents whose parts are shared: a table of parts, each of which names only parts below its own, and the document
//! that a part stands for. Definitions and their first laws alone; `specs/Lib.antt` lists the definitions.
#![tactic(auto)]
