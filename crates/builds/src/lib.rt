// No code: what a catalogue is and means, its builds and its faults, with the laws about them.
#![tactic(auto)]
