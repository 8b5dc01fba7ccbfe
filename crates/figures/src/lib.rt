// Laws: SPEC's figures as one table. No code.
#![tactic(auto)]
