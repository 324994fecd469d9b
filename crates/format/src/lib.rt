// The byte table of messages (paper 01, "Message bytes"): definitions and laws only. `specs/Table.antt` is the table.
#![tactic(auto)]
