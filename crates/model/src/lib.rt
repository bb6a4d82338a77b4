// Document 01 as definitions, all in specs/, and what they give when they are computed.
#![tactic(auto)]
