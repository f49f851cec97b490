// The definitions of the controller's calls, for the contracts of `controller` and for the claim about lists of calls. No code.
#![tactic(auto)]
