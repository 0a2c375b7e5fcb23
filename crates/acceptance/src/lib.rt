// What the tender asks for, by name. The functions have nothing to do: each promises one condition, so that the gate
// can't pass without its proof, and `specs/Conditions.antt` is the one file to open; `specs/Orders.antt` has later
// orders.
#![tactic(auto)]

ghost use Rattle.receiver.specs.Calls.{CallsDeliverTrue};
ghost use Rattle.exports_receiver.specs.Run.{HostGetsTrue};
ghost use Rattle.acceptance.specs.Conditions.{Condition1, Condition2, Condition2IsMeant};
ghost use Rattle.acceptance.specs.Conditions.{Condition3, RefusedChangeNothing, Condition3IsMeant};
ghost use Rattle.acceptance.specs.Examples.{EveryExample};
ghost use Rattle.acceptance.specs.Orders.{Order6, Order11, Order13};
ghost use Rattle.acceptance.specs.Layouts.{EveryLayout};

// A refusal changes neither state nor one lent byte.
pub fn condition_1()
    ensures { Condition1 }
{}

// Read and written exactly; the login's rules; the receiver's table and its requests.
pub fn condition_2()
    ensures condition2 { Condition2 }
    ensures is_meant { Condition2IsMeant }
{}

// Exactly the true messages, in order, each once, for every list of datagrams: of the receiver, of calls of its
// functions, and of what a host gets by calls of the exported ones.
pub fn condition_3()
    ensures condition3 { Condition3 }
    ensures refused { RefusedChangeNothing }
    ensures by_calls { CallsDeliverTrue }
    ensures for_hosts { HostGetsTrue }
    ensures is_meant { Condition3IsMeant }
{}

// Order 6: the receiver that keeps early messages.
pub fn order_6()
    ensures { Order6 }
{}

// Order 11: what is missing from a capture.
pub fn order_11()
    ensures { Order11 }
{}

// Order 13: swapped neighbours do no harm.
pub fn order_13()
    ensures { Order13 }
{}

// Document 01's examples either side of the line.
pub fn examples()
    ensures { EveryExample }
{}

// The published layouts, byte by byte.
pub fn layouts()
    ensures { EveryLayout }
{}
