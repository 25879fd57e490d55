// The bench table: worked values of the steps. The contract is that the definitions compute them, and the function does nothing.
#![tactic(auto)]

ghost use Rattle.bench_table.specs.Table.{BenchTable};

pub fn bench_table()
    ensures { BenchTable }
{}
