//! The precise tables of the five kinds, with a row for each pair of methods.

pub const SETS: &str = "type set
add add : a1 != a2 or (p1 = 0 and p2 = 0)
add remove : a1 != a2
add contains : a1 != a2 or p1 = 0
remove add : a1 != a2
remove remove : a1 != a2 or (p1 = 0 and p2 = 0)
remove contains : a1 != a2 or p1 = 0
contains add : a1 != a2 or p2 = 0
contains remove : a1 != a2 or p2 = 0
contains contains : true
";

pub const CELLS: &str = "type cells
read read : true
read add : a1 != a2 or b2 = 0
read set : a1 != a2 or p1 = b2
add read : a1 != a2 or b1 = 0
add add : true
add set : a1 != a2 or b1 = 0
set read : a1 != a2 or p1 = b1
set add : a1 != a2 or b2 = 0
set set : a1 != a2 or (b1 = b2 and p1 = b1)
";

pub const FLOWS: &str = "type flow
height height : true
height relabel : a1 != a2 or p1 = b2
height excess : true
height gain : true
height flow : true
height send : true
relabel height : a1 != a2 or p1 = b1
relabel relabel : a1 != a2 or (b1 = b2 and p1 = b1)
relabel excess : true
relabel gain : true
relabel flow : true
relabel send : true
excess height : true
excess relabel : true
excess excess : true
excess gain : a1 != a2 or b2 = 0
excess flow : true
excess send : true
gain height : true
gain relabel : true
gain excess : a1 != a2 or b1 = 0
gain gain : true
gain flow : true
gain send : true
flow height : true
flow relabel : true
flow excess : true
flow gain : true
flow flow : true
flow send : a1 != a2 or b2 = 0
send height : true
send relabel : true
send excess : true
send gain : true
send flow : a1 != a2 or b1 = 0
send send : true
";

pub const POINTS: &str = "type points
add add : a1 != a2 or (p1 = 0 and p2 = 0)
add remove : a1 != a2 or (p1 = 0 and p2 = 0)
add at : a1 != a2 or p1 = 0
add nearest : p1 = 0 or a1 != p2
remove add : a1 != a2 or (p1 = 0 and p2 = 0)
remove remove : a1 != a2 or (p1 = 0 and p2 = 0)
remove at : a1 != a2 or p1 = 0
remove nearest : p1 = 0 or a1 = a2 or (p2 != -1 and beyond(arg2, arg1, rep2) = 1)
at add : a1 != a2 or p2 = 0
at remove : a1 != a2 or p2 = 0
at at : true
at nearest : true
nearest add : p2 = 0 or a1 = a2 or (p1 != -1 and beyond(arg1, arg2, rep1) = 1)
nearest remove : p2 = 0 or p1 != a2
nearest at : true
nearest nearest : true
";

pub const DOMAINS: &str = "type domains
weigh weigh : true
weigh total : b1 = 0 or dom1 != dom2
weigh move : p2 = b2
weigh credit : true
weigh sum : b1 = 0 or dom1 != a2
total weigh : b2 = 0 or dom1 != dom2
total total : true
total move : p2 = b2
total credit : b2 = 0 or dom1 != a2
total sum : true
move weigh : p1 = b1
move total : p1 = b1
move move : a1 != a2 or (p1 = b1 and p2 = b2)
move credit : p1 = b1
move sum : p1 = b1
credit weigh : true
credit total : b1 = 0 or a1 != dom2
credit move : p2 = b2
credit credit : true
credit sum : a1 != a2 or b1 = 0
sum weigh : b2 = 0 or a1 != dom2
sum total : true
sum move : p2 = b2
sum credit : a1 != a2 or b2 = 0
sum sum : true
";
