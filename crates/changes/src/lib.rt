// Laws only: what the words' functions of queues, chains and slots do to the state.
#![tactic(auto)]
