//! Prints the results of calls of library functions that no command calls, one row for each call.
//! The rows show a fact that no contract states: the calls find enough memory and return a result.
//! (For the functions that a command calls, the test cases of the commands show this.) The output
//! is compared with the file `stdout`, whose lines were written from the definitions or by
//! independent programs.
//!
//! What is proved:
//!
//! A program that prints results of the library's calls, one line each: it is proved safe. The
//! expected lines were written from the definitions or by independent code or programs.
#![tactic(auto)]

mod expressions;
mod growth_rows;
mod hooks;
mod kept;
mod listed;
mod nesting;
mod plain;
mod printing;
mod products;
mod shapes;
mod strips;
mod texts;

fn main(rt: HostRuntime) -> anyhow::Result<()> {
    expressions::print(&rt)?;
    growth_rows::print(&rt)?;
    hooks::print(&rt)?;
    kept::print(&rt)?;
    listed::print(&rt)?;
    nesting::print(&rt)?;
    plain::print(&rt)?;
    products::print(&rt)?;
    strips::print(&rt)?;
    texts::print(&rt)
}
