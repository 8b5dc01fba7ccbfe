// Laws: what joining a recording comes to, by demand 3. Of a recording whose packets are segments of messages, among others, what is
// written has every message all of whose segments are in it, and under a message's key nothing that is not a message. No code.
#![tactic(auto)]
