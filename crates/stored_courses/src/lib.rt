#![tactic(auto)]

// Courses of calls on images in slots: definitions and laws only.
