//! Plans of how literals count a sum of weights: which sums they count, and which of them follows from which. Nothing is
//! proved of a plan but that it is made: who follows it tests each rule.
#![tactic(auto)]

use std::alloc::{AllocError, Allocator};

/// That the weights from the first on, up to the end, come to so much.
#[derive(Clone, Copy)]
pub struct Sum {
    pub at_least: u64,
    pub first: usize,
    pub end: usize,
}

/// That a sum is reached where two others are, which may be the same one. Each is named by its place.
#[derive(Clone, Copy)]
pub struct Rule {
    pub left: usize,
    pub right: usize,
    pub effect: usize,
}

/// The places of the sums of one range: those from `low` on, up to `high`, in ascending order.
#[derive(Clone, Copy)]
struct Node {
    low: usize,
    high: usize,
}

/// A sum that was asked for.
#[derive(Clone, Copy)]
struct Reached {
    target: u64,
    place: usize,
}

/// The weights that have one number of digits.
#[derive(Drop)]
struct Level<A: Allocator + Copy> {
    node: Node,
    end: usize,
    /// What they and all shorter ones come to.
    total: u64,
    reached: Vec<Reached, A>,
}

/// Sums, and the rules between them that were not followed yet.
#[derive(Drop)]
pub struct Plan<A: Allocator + Copy> {
    alloc: A,
    sums: Vec<Sum, A>,
    rules: Vec<Rule, A>,
    levels: Vec<Level<A>, A>,
}

/// How many digits a weight has to the base, less one.
fn digits_of(weight: u64, radix: u64) -> u64 {
    let mut left = weight;
    let mut digits: u64 = 0;
    'digits: for _ in 0..64 {
        if radix < 2 || left < radix {
            break;
        }
        left /= radix;
        digits = digits.saturating_add(1);
    }
    digits
}

/// The end of the weights from the first on that have as many digits.
fn end_of_level(weights: &[u64], first: usize, radix: u64) -> usize {
    if first >= weights.len() {
        return first;
    }
    let digits = digits_of(weights[first], radix);
    for index in first..weights.len() {
        if digits_of(weights[index], radix) != digits {
            return index;
        }
    }
    weights.len()
}

/// The numbers in ascending order, each once, and no 0.
fn ascending<A: Allocator + Copy>(
    mut numbers: Vec<u64, A>,
    alloc: A,
) -> Result<Vec<u64, A>, AllocError> {
    numbers.as_mut_slice().sort_unstable();
    let mut distinct = Vec::new(alloc);
    let mut last = 0;
    for number in &numbers {
        if *number != last {
            distinct.push(*number)?;
            last = *number;
        }
    }
    Ok(distinct)
}

impl<A: Allocator + Copy> Plan<A> {
    /// Nothing is counted. It takes no memory.
    pub fn new_in(alloc: A) -> Plan<A> {
        Plan {
            alloc,
            sums: Vec::new(alloc),
            rules: Vec::new(alloc),
            levels: Vec::new(alloc),
        }
    }

    /// The sums.
    pub fn sums(&self) -> &[Sum] {
        self.sums.as_slice()
    }

    /// The rules that were not forgotten.
    pub fn rules(&self) -> &[Rule] {
        self.rules.as_slice()
    }

    /// Forgets the rules.
    pub fn forget_rules(&mut self) {
        self.rules.clear();
    }

    /// Plans sums of the weights up to the greatest one that is asked for. Those of the fewest digits come first, as each
    /// is one digit with zeros.
    pub fn count(&mut self, weights: &[u64], radix: u64, most: u64) -> Result<(), AllocError> {
        let mut first = 0;
        let mut total: u64 = 0;
        'levels: for _ in 0..64 {
            if first >= weights.len() {
                break;
            }
            let end = end_of_level(weights, first, radix);
            let mut nodes = Vec::new(self.alloc);
            for index in first..end {
                if index < weights.len() {
                    total = total.saturating_add(weights[index]);
                    let leaf = self.leaf(weights[index], index)?;
                    nodes.push(leaf)?;
                }
            }
            let node = self.tree(nodes, most)?;
            self.levels.push(Level {
                node,
                end,
                total,
                reached: Vec::new(self.alloc),
            })?;
            first = end;
        }
        Ok(())
    }

    /// Plans a sum.
    fn sum(&mut self, at_least: u64, first: usize, end: usize) -> Result<usize, AllocError> {
        let place = self.sums.len();
        self.sums.push(Sum {
            at_least,
            first,
            end,
        })?;
        Ok(place)
    }

    /// Plans a rule.
    fn rule(&mut self, left: usize, right: usize, effect: usize) -> Result<(), AllocError> {
        self.rules.push(Rule {
            left,
            right,
            effect,
        })?;
        Ok(())
    }

    /// One weight.
    fn leaf(&mut self, weight: u64, index: usize) -> Result<Node, AllocError> {
        let low = self.sum(weight, index, index.saturating_add(1))?;
        Ok(Node {
            low,
            high: self.sums.len(),
        })
    }

    /// Joins neighbours in turn until one is left.
    fn tree(&mut self, mut nodes: Vec<Node, A>, most: u64) -> Result<Node, AllocError> {
        'rounds: for _ in 0..64 {
            if nodes.len() < 2 {
                break;
            }
            nodes = self.halved(&nodes, most)?;
        }
        match nodes.first() {
            Some(node) => Ok(*node),
            None => Ok(Node { low: 0, high: 0 }),
        }
    }

    /// Joins neighbours.
    fn halved(&mut self, nodes: &[Node], most: u64) -> Result<Vec<Node, A>, AllocError> {
        let mut joined = Vec::new(self.alloc);
        let mut last: Option<Node> = None;
        for node in nodes {
            match last {
                Some(left) => {
                    let both = self.join(left, *node, most)?;
                    joined.push(both)?;
                    last = None;
                }
                None => last = Some(*node),
            }
        }
        if let Some(node) = last {
            joined.push(node)?;
        }
        Ok(joined)
    }

    /// The sum of the place.
    fn at(&self, place: usize) -> Sum {
        match self.sums.get(place) {
            Some(sum) => *sum,
            None => Sum {
                at_least: 0,
                first: 0,
                end: 0,
            },
        }
    }

    /// What both come to, or the most.
    fn sum_of(&self, left: usize, right: usize, most: u64) -> u64 {
        let sum = self
            .at(left)
            .at_least
            .saturating_add(self.at(right).at_least);
        sum.min(most)
    }

    /// The sums of two neighbouring ranges, and of both.
    fn numbers(&self, left: Node, right: Node, most: u64) -> Result<Vec<u64, A>, AllocError> {
        let mut numbers = Vec::new(self.alloc);
        for y in right.low..right.high {
            numbers.push(self.at(y).at_least.min(most))?;
        }
        for x in left.low..left.high {
            numbers.push(self.at(x).at_least.min(most))?;
            for y in right.low..right.high {
                let sum = self.sum_of(x, y, most);
                numbers.push(sum)?;
                if sum == most {
                    break;
                }
            }
        }
        let distinct = ascending(numbers, self.alloc)?;
        Ok(distinct)
    }

    /// Plans the rule by which the number is reached that stands among those from the place on.
    fn rule_to(
        &mut self,
        left: usize,
        right: usize,
        numbers: &[u64],
        number: u64,
        low: usize,
    ) -> Result<(), AllocError> {
        if let Ok(place) = numbers.binary_search(&number) {
            self.rule(left, right, low.saturating_add(place))?;
        }
        Ok(())
    }

    /// Plans the sums of two neighbouring ranges.
    fn join(&mut self, left: Node, right: Node, most: u64) -> Result<Node, AllocError> {
        let numbers = self.numbers(left, right, most)?;
        let low = self.sums.len();
        let first = self.at(left.low).first;
        let end = self.at(right.low).end;
        for number in &numbers {
            let place = self.sum(*number, first, end)?;
            if place > low {
                self.rule(place, place, place - 1)?;
            }
        }
        let node = Node {
            low,
            high: self.sums.len(),
        };
        for y in right.low..right.high {
            let number = self.at(y).at_least.min(most);
            self.rule_to(y, y, &numbers, number, low)?;
        }
        for x in left.low..left.high {
            let number = self.at(x).at_least.min(most);
            self.rule_to(x, x, &numbers, number, low)?;
            self.rules_with(x, right, &numbers, most, low)?;
        }
        Ok(node)
    }

    /// Plans the rules of one sum with those of the range behind it.
    fn rules_with(
        &mut self,
        left: usize,
        right: Node,
        numbers: &[u64],
        most: u64,
        low: usize,
    ) -> Result<(), AllocError> {
        for y in right.low..right.high {
            let sum = self.sum_of(left, y, most);
            self.rule_to(left, y, numbers, sum, low)?;
            if sum == most {
                break;
            }
        }
        Ok(())
    }

    /// The place of the sum of all weights that comes to the target, if they can.
    pub fn reach(&mut self, target: u64) -> Result<Option<usize>, AllocError> {
        let levels = self.levels.len();
        let place = self.reach_by(levels, target)?;
        Ok(place)
    }

    /// The place of the first sum of a range that is no less than the target.
    fn first_from(&self, node: Node, target: u64) -> Option<usize> {
        for place in node.low..node.high {
            if self.at(place).at_least >= target {
                return Some(place);
            }
        }
        None
    }

    /// Keeps what was planned for a target.
    fn keep_reached(&mut self, level: usize, target: u64, place: usize) -> Result<(), AllocError> {
        if level < self.levels.len() {
            self.levels[level].reached.push(Reached { target, place })?;
        }
        Ok(())
    }

    /// What was planned for a target.
    fn known(&self, level: usize, target: u64) -> Option<usize> {
        if level >= self.levels.len() {
            return None;
        }
        for known in &self.levels[level].reached {
            if known.target == target {
                return Some(known.place);
            }
        }
        None
    }

    /// The same of the weights of so many levels.
    fn reach_by(&mut self, levels: usize, target: u64) -> Result<Option<usize>, AllocError> {
        if levels == 0 || levels > self.levels.len() {
            return Ok(None);
        }
        let level = &self.levels[levels - 1];
        if target > level.total {
            return Ok(None);
        }
        let (node, end) = (level.node, level.end);
        if levels == 1 {
            return Ok(self.first_from(node, target));
        }
        if let Some(place) = self.known(levels - 1, target) {
            return Ok(Some(place));
        }
        let place = self.sum(target, 0, end)?;
        self.keep_reached(levels - 1, target, place)?;
        if let Some(x) = self.reach_by(levels - 1, target)? {
            self.rule(x, x, place)?;
        }
        for y in node.low..node.high {
            let value = self.at(y).at_least;
            if value >= target {
                self.rule(y, y, place)?;
                break;
            }
            if let Some(x) = self.reach_by(levels - 1, target - value)? {
                self.rule(x, y, place)?;
            }
        }
        Ok(Some(place))
    }
}
