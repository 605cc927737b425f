// No code to run: specs/ has the columns of the wwPDB format, for the theorem on departures and for whoever writes lines.
#![tactic(auto)]
