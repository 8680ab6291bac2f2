// "The whole day at once" (02, request Fourteen): any list of header and frame calls on one record and one picture. Laws only.

#![tactic(auto)]
