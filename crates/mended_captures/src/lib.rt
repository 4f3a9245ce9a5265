// Claims about mended captures as a printer end reads them; no code.
#![tactic(auto)]
