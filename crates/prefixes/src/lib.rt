// Which word refuses a typed rule, and white space between words (Req 02): definitions and laws over the parser's.
#![tactic(auto)]
