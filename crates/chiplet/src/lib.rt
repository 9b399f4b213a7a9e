// What the box does with a circuit's words (specs/).
