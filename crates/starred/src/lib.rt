// The starred cases of document 01, 'Blocks to try', as one claim over one list. It has no code: see specs/Starred.antt.
#![tactic(auto)]
