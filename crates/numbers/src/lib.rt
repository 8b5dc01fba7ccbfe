// Laws: a refusal's number is one of its call's own list in SPEC. No code.
#![tactic(auto)]
