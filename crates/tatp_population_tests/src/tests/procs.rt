//! The standard module, the parts of calls and replies.
mod call_lines;
mod calls;
mod module;
mod reply_lines;
