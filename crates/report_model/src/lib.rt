//! Definitions of plans, of the report's text, and of what a report says: the headline.
#![tactic(auto)]
