// That the Fever pacemaker is live, proved of its small transitions, all in specs/.
#![tactic(auto)]
