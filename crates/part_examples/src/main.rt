//! Small worked examples of the parts of the machine: each calls the public calls of a part and prints a
//! line that `stdout` has. A part has a module of its own, with one function for each line.
#![tactic(auto)]

mod dispatch;
mod memory;
mod pool;
mod registers;
mod reorder;
mod waiting;

fn main(rt: HostRuntime) -> anyhow::Result<()> {
    let alloc = rt.alloc();
    println!(rt; "{}", dispatch::a_wide_row_fills_groups(alloc)?)?;
    println!(rt; "{}", dispatch::nothing_joins_an_ended_group(alloc)?)?;
    println!(rt; "{}", reorder::a_retirement_frees_its_micro_ops(alloc)?)?;
    println!(rt; "{}", registers::one_register_in_flight(alloc)?)?;
    println!(rt; "{}", pool::two_nodes_serve_two_lists(alloc)?)?;
    println!(rt; "{}", waiting::the_oldest_ready_row_first(alloc)?)?;
    println!(rt; "{}", memory::a_load_waits_for_a_store(alloc)?)?;
    Ok(())
}
